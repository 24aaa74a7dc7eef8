//! The command line of `modeplan`, as `clap` and people are told of it: its commands, and the words and options of each.
#![tactic(auto)]

mod description;
mod matching;

pub use description::{
    DATE, DAYS, FIFTH, FIRST, FORMAT, FOURTH, HIERARCHY, KEEP, KEPT, LABEL_COUNT, LABELS, LENGTH,
    PLACE_COUNT, PLACES, RULE, SECOND, SIXTH, SIZE, THIRD, WINDOW, ZONE, modeplan,
};
pub use matching::match_words;
