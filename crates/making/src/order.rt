// In which order the two parts of a node are worked out.
ghost use Rattle.std.specs.Prelude.{◌≡◌, nat_lt, if◌then◌else◌};
ghost use Rattle.making.specs.Orders.{order_of, arranged};

#[derive(Clone, Copy)]
pub enum Order {
    Written,
    Turned,
}

impl Order {
    // Of two parts the one that needs more tables comes first, so that fewer are kept.
    pub fn by_tables(first: u32, second: u32) -> Order
        ensures { result ≡ order_of first second }
    {
        if first < second {
            Order::Turned
        } else {
            Order::Written
        }
    }

    // Puts two things in this order; done twice, they are as they were.
    pub fn arrange<T>(self, first: T, second: T) -> (T, T)
        ensures { result ≡ arranged self first second }
    {
        match self {
            Order::Written => (first, second),
            Order::Turned => (second, first),
        }
    }
}
