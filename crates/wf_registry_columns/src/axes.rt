//! The letters of dimspecs, and their axes.

ghost use Rattle.std.specs.Prelude.{◌≡◌, ◌==◌, ◌++◌, ◌∷◌, [], OnOk, find};
ghost use Rattle.std.specs.List.{list_any};
ghost use Rattle.std.specs.Option.{option_copied};
ghost use Rattle.wf_model.specs.Entries.{axis_of};
ghost use Rattle.wf_model.specs.Judging.{is_known};
ghost use Rattle.wf_registry_columns.specs.Axes.{HasAxesOf, bare_dimspec};
ghost use Rattle.wf_registry_columns.specs.FoundAxis.{found_axis};

use std::alloc::{AllocError, Global};
use std::marker::Model;

#[derive(Clone, Copy)]
struct Letter {
    letter: u8,
    axis: u8,
}

fn has_letter(letters: &[Letter], letter: u8) -> bool
    ensures { result ≡ list_any (λ l. letter == l.letter) letters.now }
{
    letters.iter().any(|l| letter == l.letter)
}

fn find_letter(letters: &[Letter], letter: u8) -> Option<&Letter>
    ensures { option_copied result ≡ find (λ l. letter == l.letter) letters.now }
{
    letters.iter().find(|l| letter == l.letter)
}

fn axis_in(letters: &[Letter], letter: u8) -> u8
    ensures { result ≡ found_axis (find (λ l. letter == l.letter) letters.now) }
{
    match find_letter(letters, letter) {
        Some(found) => found.axis,
        None => 0,
    }
}

/// The letters that dimspecs declare, each with the axis of its first dimspec.
///
/// Contracts see a list of dimspecs with these letters and axes and without other columns.
#[derive(Drop)]
pub struct Axes {
    letters: Vec<Letter>,
}

impl Model for Axes {
    ghost use Rattle.std.specs.Prelude.{List as Items, map};
    ghost use Rattle.wf_model.specs.declared.registry.Entry.{Entry};
    ghost use Rattle.wf_registry_columns.specs.Axes.{bare_dimspec};

    ghost Value = { Items Entry };

    ghost view = { λ it. map (λ l. bare_dimspec l.letter l.axis) it.letters.items };
}

impl Axes {
    /// No letter.
    pub fn new(alloc: Global) -> Axes
        ensures { result ≡ [] }
    {
        Axes {
            letters: Vec::new(alloc),
        }
    }

    /// Whether some dimspec has this letter.
    #[tactic(auto, using(crate::proofs::AxisLemmas::known_in))]
    pub fn is_known(&self, letter: u8) -> bool
        ensures { result ≡ is_known self.now letter }
    {
        has_letter(&self.letters, letter)
    }

    /// The axis of a letter: `x`, `y` or `z`, or the byte that stood in its place; 0 where no
    /// dimspec has the letter.
    pub fn axis_of(&self, letter: u8) -> u8
        ensures { result ≡ axis_of self.now letter }
    {
        axis_in(&self.letters, letter)
    }

    /// Adds a dimspec with this letter and axis behind the others.
    pub fn add(&mut self, letter: u8, axis: u8) -> Result<(), AllocError>
        ensures { OnOk result (HasAxesOf self.new (self.old ++ bare_dimspec letter axis ∷ [])) }
    {
        if !self.is_known(letter) {
            self.letters.push(Letter { letter, axis })?;
        }
        Ok(())
    }
}
