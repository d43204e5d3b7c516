//! The lines that there are, as a person learns of them.

/// What `help` prints.
pub(crate) const HELP: &str =
    r#"put K V            sets K to V: an integer, or a text; in double quotes, as "red room" or "007", where it has spaces or looks like a number
add K N            adds N to the number of K; where K has no value it becomes N
del K              K has no value from then on
claim K1 [K2..] V  sets the first of these keys that has no value to V, unless one has V already; up to four behind K1
get K1 [K2..]      reads these keys; up to four behind K1
again              asks the last Write once more, where its reply was lost or it was refused
at I               server I is the first to be asked from here on
list [P]           each key that has a value, or each that begins with P, and that value, in the order of their bytes
became I:N         what became of Write N of server I: its update, an alternative, or nothing was applied
mine               how your own Writes stand that weren't final: tentative, changed or final, and what became of each
wait [SECONDS]     waits until they are final, and tells each as it is; for 60 seconds where nothing is said
servers            each server, and what it holds, or that it is away
session            what the session asks for, and what it read and wrote
dump               puts what each server holds into the book, once, at the end
help               these lines
quit               ends
A key has 1 to 32 bytes of a-z 0-9 . _ - /; a text at most 32 bytes. A line that begins with [ is one of a script.
"#;
