// The session from text to text: what is printed for a table and the commands behind it, as it computes and as what is asked of it.
#![tactic(auto)]
