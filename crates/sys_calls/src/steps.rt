//! What a step of a process was.
use t32_base::letter::Letter;
use t32_base::process::End;

/// What a process sends: a letter, or its end.
#[derive(Drop)]
pub enum Emission {
    Mail(Letter),
    Exit(End),
}

/// What a step was, or why none was made: the process is blocked, forks next, or has ended.
#[derive(Drop)]
pub enum Step {
    Silent,
    Blocked,
    Forks,
    Emit(Emission),
    Over,
}
