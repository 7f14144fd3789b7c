// The laws of the worlds that are made of a number: they keep the rules, and their uploads are good.
#![tactic(auto)]

mod laws;

pub use laws::{
    generated_exits_meet, generated_uploads_are_good, generated_worlds_are_writable,
    player_modules_are_accepted,
};
