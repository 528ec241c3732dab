// The order of the records in a file.
ghost use Rattle.std.specs.Prelude.{◌≡◌, is_some};
ghost use Rattle.std.specs.Option.{unwrap_or};
ghost use Rattle.zengin.specs.Judged.{next_order};

use records::layouts::Sort;

/// Where a file stands after some of its records.
#[derive(Clone, Copy)]
pub(crate) enum Order {
    Start,
    InGroup,
    AfterTrailer,
    Ended,
}

impl Order {
    /// Goes on past a record of this sort, or tells that it may not come here and stays.
    // A state changed in place by state and sort together is the form that the project sets; whether it went on is all there is to tell.
    pub(crate) fn admit(&mut self, sort: Sort) -> bool
        ensures answer { result ≡ is_some (next_order self.old sort) }
        ensures state { self.new ≡ unwrap_or (next_order self.old sort) self.old }
    {
        match (*self, sort) {
            (Order::Start | Order::AfterTrailer, Sort::Header) => *self = Order::InGroup,
            (Order::InGroup, Sort::Data) => {}
            (Order::InGroup, Sort::Trailer) => *self = Order::AfterTrailer,
            (Order::AfterTrailer, Sort::End) => *self = Order::Ended,
            _ => return false,
        }
        true
    }
}
