// What an engine is asked for, and what it leaves, of whatever run: both engines' contracts name it. No function stands here.
#![tactic(auto)]
