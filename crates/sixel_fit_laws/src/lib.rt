//! Laws of pictures that named terminals show whole: a check for these terminals finds no broken rule, each of them
//! shows the picture, and nothing of it is lost.
#![tactic(auto)]

pub mod laws;
