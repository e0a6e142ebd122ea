// What a logical line is, by its first word.

pub use blif_models::Keyword;
