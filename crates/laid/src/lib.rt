// Items laid out in lists of numbers, so many numbers each: the edges of a list, the records of a flip log. No function stands here.
#![tactic(auto)]
