// The lines of replies of `replay`, as what `{}` writes of a value. Nothing here is lent the store: `show` has what runs, edits and
// records come to, `line` what names elements, `many` the events of many steps of a walk, `bytes` a line's end in hexadecimal
// digits. What a program prints is compared with stored output and not proved.

#![tactic(auto)]

pub mod bytes;
pub mod line;
pub mod many;
pub mod show;
