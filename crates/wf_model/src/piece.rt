ghost use Rattle.std.specs.Prelude.{◌≡◌};
ghost use Rattle.wf_model.specs.Held.{piece_numbers};

use crate::list::List;
use crate::run_name::RunName;
use std::marker::{Model, PhantomData};

/// What a patch posts of a frame's variable for a quilt server: the numbers of its own cells in
/// order k, j, i.
#[derive(Drop)]
pub struct Piece<N: RunName> {
    frame: u32,
    field: u32,
    patch: u32,
    values: List<i32>,
    of: PhantomData<N>,
}

impl<N: RunName> Model for Piece<N> {
    ghost use Rattle.std.specs.Prelude.{◌≡◌};
    ghost use Rattle.wf_model.specs.Core.{Posted};
    ghost use Rattle.wf_model.specs.Held.{piece_numbers};

    ghost Value = { Posted };

    ghost view = { λ p. record {
      frame = p.frame;
      field = p.field;
      patch = p.patch;
      values = p.values;
    } };

    ghost invariant = { λ p. p.values ≡ piece_numbers N.run N.layout p.frame p.field p.patch };
}

impl<N: RunName> Piece<N> {
    /// The piece of a field level of a frame that a patch posts.
    pub fn new(frame: u32, field: u32, patch: u32, values: Vec<i32>) -> Piece<N>
        requires { values.items ≡ piece_numbers N.run N.layout frame field patch }
        ensures { result
            ≡ record { frame = frame; field = field; patch = patch; values = values.items } }
    {
        Piece {
            frame,
            field,
            patch,
            values: List::from_vec(values),
            of: PhantomData,
        }
    }

    /// The number of its frame, from 0.
    pub fn frame(&self) -> u32
        ensures { result ≡ self.now.frame }
    {
        self.frame
    }

    /// Its field level, from 0.
    pub fn field(&self) -> u32
        ensures { result ≡ self.now.field }
    {
        self.field
    }

    /// The patch that posts it, from 0.
    pub fn patch(&self) -> u32
        ensures { result ≡ self.now.patch }
    {
        self.patch
    }

    /// Its numbers.
    pub fn values(&self) -> &[i32]
        ensures values { result.now ≡ self.now.values }
        ensures numbers { result.now
            ≡ piece_numbers N.run N.layout self.now.frame self.now.field self.now.patch }
    {
        self.values.as_slice()
    }
}
