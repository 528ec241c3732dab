// Registers stacked while the program runs: a host that holds a bottom host and a list of registers of any sorts.
ghost use Rattle.std.specs.Prelude.{◌≡◌, ◌<◌, [], ◌∷◌, ◌++◌, map, is_ok, IsOk, IfErr, IfNone, if◌then◌else◌, vec_len, vec_capacity};
ghost use Rattle.std.specs.Option.{option_to_list};
ghost use Rattle.registers.specs.Listings.{listing, objects};
ghost use Rattle.tables.specs.Figures.{figures_above};
ghost use Rattle.registers.specs.Piles.{listings, held, registers_above, ground_above, FiguresOfTheBottom, UppermostObjects, OrElseTheHost, StackedAsNested, Passed, Stopped};

use crate::layered::{Layer, Layered};
use crate::register::Register;
use claims::codes::ResultCode;
use claims::terms::Terms;
use hosts::host::Host;
use std::alloc::{AllocFailed, Global};

/// Registers above a host, uppermost first.
pub type Pile<P> = Layered<Vec<Register>, P>;

impl Layer for Vec<Register> {
    ghost held = { λ v. listings v.items };

    fn objection(&self, terms: Terms) -> Option<ResultCode> {
        self.iter().find_map(|register| register.objection(terms))
    }

    fn lower(&mut self, terms: Terms) {
        for register in self.iter_mut() {
            register.lower(terms);
        }
    }
}

impl<P: Host> Pile<P> {
    /// A host with no registers above it.
    pub fn new(heap: Global, below: P) -> Pile<P>
        ensures bare { result.layer.items ≡ [] }
        ensures below { result.below ≡ below }
    {
        Layered {
            below,
            layer: Vec::new(heap),
        }
    }

    /// Puts a register above the others; without memory for it, it is handed back.
    pub fn put(&mut self, register: Register) -> Result<(), AllocFailed<Register>>
        ensures piled { self.new.layer.items ≡ (if is_ok result then register ∷ self.old.layer.items else self.old.layer.items) }
        ensures refused { IfErr result (λ y. y.value ≡ register) }
        ensures succeeds { vec_len self.old.layer < vec_capacity self.old.layer → IsOk result }
        ensures below { self.new.below ≡ self.old.below }
        ensures uppermost { registers_above (held self.new) (P.registers self.new.below) ≡ (if is_ok result then objects (listing register) ∷ registers_above (held self.old) (P.registers self.old.below) else registers_above (held self.old) (P.registers self.old.below)) }
        ensures bottom_verdict { ground_above (held self.new) (P.bottom_verdict self.new.below) ≡ ground_above (held self.old) (P.bottom_verdict self.old.below) }
        ensures taken { figures_above (held self.new) (P.taken self.new.below) ≡ figures_above (held self.old) (P.taken self.old.below) }
    {
        self.layer.insert(0, register)
    }

    /// Takes the uppermost register off unharmed, if there is one.
    pub fn take_off(&mut self) -> Option<Register>
        ensures piled { self.old.layer.items ≡ option_to_list result ++ self.new.layer.items }
        ensures empty { IfNone result (self.old.layer.items ≡ []) }
        ensures below { self.new.below ≡ self.old.below }
        ensures bottom_verdict { ground_above (held self.new) (P.bottom_verdict self.new.below) ≡ ground_above (held self.old) (P.bottom_verdict self.old.below) }
        ensures taken { figures_above (held self.new) (P.taken self.new.below) ≡ figures_above (held self.old) (P.taken self.old.below) }
    {
        if self.layer.is_empty() {
            return None;
        }
        Some(self.layer.remove(0))
    }

    /// The registers, uppermost first.
    pub fn registers(&self) -> &[Register]
        ensures { result.now ≡ self.now.layer.items }
    {
        self.layer.as_slice()
    }

    /// The host at the bottom.
    pub fn below(&self) -> &P
        ensures { result.now ≡ self.now.below }
    {
        &self.below
    }

    /// What holds of piles over this sort of host, whatever registers they have, in any order, repeats and none included.
    pub fn any_pile(&self)
        ensures uppermost { UppermostObjects }
        ensures otherwise { OrElseTheHost }
        ensures passed { Passed P.verdict P.debits }
        ensures stopped { Stopped P.verdict P.debits }
        ensures figures { FiguresOfTheBottom P.taken }
        ensures nested { StackedAsNested P.verdict P.debits }
    {}
}
