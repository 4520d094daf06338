//! A book without any kind of rule, for the refusals that no file of a drive's own book can meet.
ghost use Rattle.std.proofs.Common.{inl, rules};
ghost use Rattle.std.specs.Prelude.{false, [], ◌∷◌, refl};

use books::book::Book;
use books::narrowing::{Narrowing, Unfit};
use boxes::triple::Triple;
use windows::window::Window;

/// Drive 9, mode 3, codes up to 100, no kinds.
#[derive(Clone, Copy, Debug, PartialEq, Eq, Hash)]
pub struct BareBook;

impl Book for BareBook {
    const TOP: u32 = 100;

    const DRIVE: u8 = 9;

    const KINDS: [bool; 8] = [false; 8];

    ghost TOP = { 100 };

    ghost DRIVE = { 9 };

    ghost KINDS = { false ∷ false ∷ false ∷ false ∷ false ∷ false ∷ false ∷ false ∷ [] };

    ghost arity = { λ _. 0 };

    ghost mode = { λ _. 3 };

    ghost meaning = { λ _. record { top = 100; arity = λ _. 0; related = λ _ _. ⊥; counts = λ _. inl refl } };

    ghost counts = { λ _. inl refl };

    ghost small = { Prim.search rules };

    ghost top = { λ _. refl };

    ghost same = { λ _ _. refl };

    ghost known = { Prim.search rules };

    ghost within = { Prim.search rules };

    fn lines(_kind: u32) -> u32 {
        0
    }

    fn mode_number(&self) -> u8 {
        3
    }

    fn narrow(&self, _kind: u32, _windows: Triple<Window>) -> Narrowing {
        Err(Unfit)
    }
}
