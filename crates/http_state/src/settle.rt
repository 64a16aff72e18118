// The end of an exchange.
use crate::conn::{HttpConn, put_in};
use exchange_stage::Stage;
use limit_clock::Deadline;

impl<'s> HttpConn<'s> {
    ghost use Rattle.std.specs.Prelude.{◌≡◌};
    ghost use Rattle.http_state.specs.Settles.{Follows, Settles, is_over, stood};
    /// The whole answer stands, and closes the connection or doesn't.
    pub fn stand(&mut self, closes: bool)
        ensures { Settles (stood closes self.old) self.new }
    {
        self.closes = closes;
        self.put(Stage::Answered);
        self.settle();
    }

    /// Where the exchange is over the next one begins.
    pub fn settle(&mut self)
        ensures { Settles self.old self.new }
    {
        if self.is_over() {
            self.go_to_next();
        }
    }

    fn is_over(&self) -> bool
        ensures { result ≡ is_over self.now }
    {
        matches!(self.stage, Stage::Answered) && self.is_settled()
    }

    fn go_to_next(&mut self)
        ensures { Follows self.old self.new }
    {
        self.number = self.number.saturating_add(1);
        self.idle_left = Deadline::after(self.site.limits.idle_ticks);
        self.request.go_on();
        self.continued = false;
        self.closing |= self.closes;
        self.closes = false;
        put_in(&mut self.stage, Stage::Reading);
        put_in(&mut self.run, None);
    }
}
