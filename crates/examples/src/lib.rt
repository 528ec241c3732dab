// What shows the rules at work: the marked files as a theorem, longer files and hosts at their limits as tests, and a foreign host.
#![tactic(auto)]

ghost use Rattle.examples.specs.Marked.{MarkedAnswered};

pub mod foreign;
#[cfg(test)]
mod host_tests;
#[cfg(test)]
mod tests;

/// Holds the theorem that the rules give each marked file its answer.
pub fn marked_files_are_answered()
    ensures { MarkedAnswered }
{}
