// Calls of a host in Rust or C: numbers and lent slices alone. A call loads the states from their words, calls the library, and stores them
// back; it has no rules of its own. include/hongsathep.h says what each wants.
#![tactic(auto)]

mod ending_words;
