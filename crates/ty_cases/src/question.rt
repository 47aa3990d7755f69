//! Questions.

/// What is asked of a program.
#[derive(Clone, Copy)]
pub(crate) enum Question {
    Conforms,
    Inherits,
    Join,
    Find,
    SuperFind,
    Linear,
    SetFirst,
    At,
    Good,
    Room,
    Stands,
    Fits,
    Kind,
    Same,
    Copy,
    Rebuild,
}

static QUESTIONS: [(&str, Question); 16] = [
    ("conforms", Question::Conforms),
    ("inherits", Question::Inherits),
    ("join", Question::Join),
    ("find", Question::Find),
    ("super-find", Question::SuperFind),
    ("linear", Question::Linear),
    ("set-first", Question::SetFirst),
    ("at", Question::At),
    ("good", Question::Good),
    ("room", Question::Room),
    ("stands", Question::Stands),
    ("fits", Question::Fits),
    ("kind", Question::Kind),
    ("same", Question::Same),
    ("copy", Question::Copy),
    ("rebuild", Question::Rebuild),
];

/// The question with this name.
pub(crate) fn question_of(word: &str) -> Option<Question> {
    for (name, question) in &QUESTIONS {
        if *name == word {
            return Some(*question);
        }
    }
    None
}
