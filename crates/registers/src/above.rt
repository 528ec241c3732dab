// One register above any host, another register above a host included: piles nested by type.
use crate::layered::Layered;
use crate::register::Register;

pub type Above<P> = Layered<Register, P>;
