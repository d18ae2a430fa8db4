//! Languages of texts: which texts belong to one, and what each of them denotes.
//!
//! `specs/Language.antt` has the few ways to build a language from smaller ones. Definitions of
//! whole texts, such as a number, a timestamp or a list of instants, are built from these and read
//! like a grammar. `specs/Readers.antt` has a reader from the left for each of them, and `proofs/`
//! proves that each reader reads exactly the texts of its language.
//!
//! No code runs here: definitions and laws that many crates need are proved in seconds and lengthen
//! no chain of crates.
#![tactic(auto)]
