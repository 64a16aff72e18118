// What a server is told to do while it runs.
ghost use Rattle.std.specs.Prelude.{◌≡◌, IfSome, IsNone};
ghost use Rattle.edge_loop.specs.Orders.{OrdersTold, told_after};

/// What a server is told to do.
#[derive(Clone, Copy, Debug, PartialEq, Eq)]
pub enum Order {
    /// To end at once.
    Stop,
    /// To accept no further client, and to end once nothing is under way.
    Drain,
}

/// Where orders come from.
pub trait Orders {
    /// Which orders it gave so far.
    ghost told: { Self → OrdersTold };

    /// The next order, where one came. It doesn't wait.
    fn next_order(&mut self) -> Option<Order>
        ensures some { IfSome result (λ order. told self.new ≡ told_after order (told self.old)) }
        ensures none { IsNone result → told self.new ≡ told self.old };
}
