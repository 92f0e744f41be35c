// The starred trial cases of document 01, as one statement over a single list. No function stands here.
#![tactic(auto)]
