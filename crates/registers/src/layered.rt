// Registers above any host, held one at a time or in a list: what such a host means, and its three calls.
ghost use Rattle.std.specs.Prelude.{◌≡◌, ◌++◌, List, map};
ghost use Rattle.registers.specs.Listings.{Listing, objects, fall};
ghost use Rattle.tables.specs.Figures.{figures_above};
ghost use Rattle.registers.specs.Piles.{objection as objection_of, verdict_above, registers_above, ground_above, Debited};
ghost use Rattle.registers.specs.Layered.{pile_laws};

use claims::claim::Claim;
use claims::codes::ResultCode;
use claims::terms::Terms;
use hosts::host::Host;

/// What stands above a host: one register, or a list of them.
pub trait Layer {
    /// The registers that it holds, uppermost first.
    ghost held: { Self → List Listing };

    /// The objection of the uppermost register that objects to a claim with these terms.
    fn objection(&self, terms: Terms) -> Option<ResultCode>
        ensures { result ≡ objection_of (held self.now) terms };

    /// The claim was settled below: every ceiling falls.
    fn lower(&mut self, terms: Terms)
        ensures { held self.new ≡ map (fall terms) (held self.old) };
}

#[derive(Drop)]
pub struct Layered<L, P> {
    pub(crate) below: P,
    pub(crate) layer: L,
}

impl<L: Layer, P: Host> Layered<L, P> {
    /// Piles a register, or a list of them with the uppermost first, above a host.
    pub fn pile(layer: L, below: P) -> Layered<L, P>
        ensures parts { (result.layer ≡ layer) × (result.below ≡ below) }
        ensures uppermost { registers_above (L.held result.layer) (P.registers result.below) ≡ map objects (L.held layer) ++ P.registers below }
        ensures bottom_verdict { ground_above (L.held result.layer) (P.bottom_verdict result.below) ≡ P.bottom_verdict below }
        ensures taken { figures_above (L.held result.layer) (P.taken result.below) ≡ P.taken below }
    {
        Layered { below, layer }
    }

    /// Takes apart what was piled, so that staff can change it; both parts come back unharmed.
    pub fn take_apart(self) -> (L, P)
        ensures parts { (result.0 ≡ self.layer) × (result.1 ≡ self.below) }
        ensures taken { P.taken result.1 ≡ figures_above (L.held self.layer) (P.taken self.below) }
    {
        let Layered { below, layer } = self;
        (layer, below)
    }
}

impl<L: Layer, P: Host> Host for Layered<L, P> {
    ghost verdict = { λ s c. verdict_above (L.Layer.held s.layer) c (P.Host.verdict s.below c) };

    ghost taken = { λ s. figures_above (L.Layer.held s.layer) (P.Host.taken s.below) };

    ghost debits = { λ s c t. Debited P.Host.verdict P.Host.debits (L.Layer.held s.layer) s.below c (L.Layer.held t.layer) t.below };

    ghost registers = { λ s. registers_above (L.Layer.held s.layer) (P.Host.registers s.below) };

    ghost bottom_verdict = { λ s. ground_above (L.Layer.held s.layer) (P.Host.bottom_verdict s.below) };

    ghost laws = { pile_laws ⟦<P as Host>⟧ P.Host.laws (λ s. s.below) (λ s. L.Layer.held s.layer) };

    fn inquire(&self, claim: &Claim) -> ResultCode {
        if let Some(code) = self.layer.objection(claim.terms()) {
            return code;
        }
        self.below.inquire(claim)
    }

    fn tell_taken(&self, account: u64) -> u64 {
        self.below.tell_taken(account)
    }

    fn debit(&mut self, claim: &Claim) -> ResultCode {
        let terms = claim.terms();
        if let Some(code) = self.layer.objection(terms) {
            return code;
        }
        let code = self.below.debit(claim);
        if code == ResultCode::Settled {
            self.layer.lower(terms);
        }
        code
    }
}
