//! The cases of tokens: it runs the tables of its folder, and shows what differs.
#![tactic(auto)]

/// What the tokens of a text are.
mod answers;

use answers::{failure, token_texts, tokens, values};
use anyhow::Result;
use source_tables::{Question, run_tables};
use sr_text::Str;
use std::alloc::Global;

/// What is told of the tokens of a text.
enum Told {
    /// Their kinds and places.
    Tokens,
    /// Their texts.
    Texts,
    /// The values of literals and template pieces.
    Values,
    /// Where there is none, and why.
    Failure,
}

impl Question for Told {
    fn answer(&self, alloc: Global, text: &Str) -> Result<String> {
        let answer = match self {
            Told::Tokens => tokens(alloc, text),
            Told::Texts => token_texts(alloc, text),
            Told::Values => values(alloc, text),
            Told::Failure => failure(alloc, text),
        };
        Ok(answer?)
    }
}

fn main(rt: HostRuntime) -> Result<()> {
    run_tables(&rt, &Told::Tokens, &["texts", "templates", "pieces"])?;
    run_tables(&rt, &Told::Texts, &["token_texts"])?;
    run_tables(
        &rt,
        &Told::Values,
        &["piece_values", "string_values", "number_values"],
    )?;
    run_tables(&rt, &Told::Failure, &["failures"])
}
