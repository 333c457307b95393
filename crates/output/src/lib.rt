// Standard output and standard error for every program: a text that could not be written is not passed over. No contract can say what reaches
// the system, and these answer nothing, so they have none.
#![tactic(auto)]

use std::io::Write;

// Says a sentence on standard error, where nothing is left to do if that fails too.
pub fn complain<E: Write>(err: &mut E, sentence: &[u8]) {
    let _ = err.write_all(sentence);
}

// Writes a text to standard output; where that fails, also after some of it was written, says the sentence on standard error.
pub fn print<O: Write, E: Write>(out: &mut O, err: &mut E, text: &[u8], sentence: &[u8]) {
    if out.write_all(text).is_err() {
        complain(err, sentence);
    }
}
