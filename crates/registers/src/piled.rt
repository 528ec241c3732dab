// Whatever has registers above a host shows them: nothing that is piled can hide.
ghost use Rattle.std.specs.Prelude.{ℕ, List, Option, refl};
ghost use Rattle.claims.specs.declared.terms.Terms.{Terms};
ghost use Rattle.claims.specs.declared.codes.ResultCode.{ResultCode};
ghost use Rattle.registers.specs.Listings.{Listing};
ghost use Rattle.registers.specs.Piles.{ShowsItsRegisters, ShowsTheGroundBelow, ShowsTheFiguresBelow};

use crate::layered::{Layer, Layered};
use hosts::host::Host;

pub trait Piled: Host {
    /// The registers that it holds, uppermost first.
    ghost held: { Self → List Listing };

    /// What the host below shows.
    ghost registers_below: { Self → List (Terms → Option ResultCode) };

    ghost ground_below: { Self → Terms → ResultCode };

    ghost taken_below: { Self → ℕ → ℕ };

    ghost shows_itself: { ShowsItsRegisters Self.registers held registers_below };

    ghost shows_ground: { ShowsTheGroundBelow Self.bottom_verdict ground_below };

    ghost shows_figures: { ShowsTheFiguresBelow Self.taken taken_below };
}

impl<L: Layer, P: Host> Piled for Layered<L, P> {
    ghost held = { λ s. L.Layer.held s.layer };

    ghost registers_below = { λ s. P.Host.registers s.below };

    ghost ground_below = { λ s. P.Host.bottom_verdict s.below };

    ghost taken_below = { λ s. P.Host.taken s.below };

    ghost shows_itself = { λ _. refl };

    ghost shows_ground = { λ _ _. refl };

    ghost shows_figures = { λ _ _. refl };
}
