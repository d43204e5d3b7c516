use crate::fault::Fault;
use bayou_base::MAX_WRITES;

/// What the command line asks for.
#[derive(Debug, Drop)]
pub(crate) struct Words {
    /// The journal's file.
    pub(crate) path: String,
    /// How many connections are served: as many as Writes may be held, at the most.
    pub(crate) connections: u32,
}

fn connections_of(word: &str) -> Option<u32> {
    let connections = word.parse::<u32>().ok()?;
    (1..=MAX_WRITES)
        .contains(&connections)
        .then_some(connections)
}

/// What the words ask for, of which the first is the program's own name.
pub(crate) fn read_words(words: Vec<String>) -> Result<Words, Fault> {
    let mut words = words;
    if words.len() != 3 {
        return Err(Fault::Words);
    }
    let (Some(number), Some(path)) = (words.pop(), words.pop()) else {
        return Err(Fault::Words);
    };
    match connections_of(&number) {
        Some(connections) => Ok(Words { path, connections }),
        None => Err(Fault::Words),
    }
}
