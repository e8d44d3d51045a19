// Random numbers (xorshift, 64 bits).
ghost use Rattle.std.specs.Prelude.{◌≤◌, ◌<◌};

// Spreads the states of neighbours.
const SPREAD: u64 = 2654435761;

// What the next number follows from.
#[derive(Drop)]
pub(crate) struct Random {
    state: u64,
}

impl Random {
    // Those of the network of a number: the state is never 0, and far from its neighbours'.
    pub(crate) fn of_network(number: u32) -> Random {
        let mut random = Random {
            state: (u64::from(number) + 1) * SPREAD,
        };
        random.advance();
        random.advance();
        random.advance();
        random
    }

    // The next number of 64 bits.
    fn advance(&mut self) -> u64 {
        self.state ^= self.state << 13;
        self.state ^= self.state >> 7;
        self.state ^= self.state << 17;
        self.state
    }

    // A number from 0 to `top`.
    pub(crate) fn up_to(&mut self, top: u32) -> u32
        ensures { result ≤ top }
    {
        (self.advance() % (u64::from(top) + 1)) as u32
    }

    // A number from 1 to `top`, 1 also for 0.
    pub(crate) fn one_to(&mut self, top: u32) -> u32
        ensures { 0 < top → result ≤ top }
    {
        self.up_to(top.saturating_sub(1)) + 1
    }

    // A place among so many, 0 where there is none.
    pub(crate) fn place(&mut self, places: usize) -> usize
        ensures { 0 < places → result < places }
    {
        (self.advance() % (places as u64).max(1)) as usize
    }

    // True once in so many times; always for 0.
    pub(crate) fn one_in(&mut self, times: usize) -> bool {
        self.place(times) == 0
    }

    // One of the choices.
    pub(crate) fn one_of<T: Copy, const N: usize>(&mut self, choices: [T; N]) -> T
        requires { 0 < N }
    {
        choices[self.place(N)]
    }
}
