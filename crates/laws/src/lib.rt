// Laws of the definitions alone: what events and edits make of entries is what they spell. No function's proof below `notes_tree` needs them; there is no code.

#![tactic(auto)]
