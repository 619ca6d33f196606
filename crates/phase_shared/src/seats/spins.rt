//! How long a registration looks for its answer, and its lane. No contract speaks of it: a wrong
//! number costs time alone.

use crate::lane_words::LANES;

// How often to look, at most: for an answer after a post, and for others' posts under the turn.
// From one phase in so many on, who does not look tries to again.
const FIRST: u32 = 40;

const SERVE: u32 = 60;

const FEW: u32 = 8;

const PROBE: u64 = 128;

/// What a registration learned of how soon others come, and where it asks.
#[derive(Clone, Copy, Debug, PartialEq, Eq)]
pub struct Spins {
    // Whether it had the turn when its last phase was complete, and served others then.
    has_served: bool,
    serves_others: bool,
    // How often it looks for posts under the turn, and for its answer after a post.
    serve: u32,
    first: u32,
    // How many phases others' turns answered, and how many of these before it tried to take a turn.
    answers: u64,
    asks: u64,
    // Its lane, or `LANES`.
    lane: u64,
}

fn doubled(number: u32, most: u32) -> u32 {
    if number >= most / 2 {
        most
    } else {
        number * 2 + 2
    }
}

impl Spins {
    pub fn new() -> Spins {
        Spins {
            has_served: true,
            serves_others: false,
            serve: SERVE,
            first: FIRST,
            answers: 0,
            asks: 0,
            lane: LANES,
        }
    }

    // With this lane.
    pub fn with_lane(lane: u64) -> Spins {
        let mut spins = Spins::new();
        spins.lane = lane;
        spins
    }

    // Its lane, or `LANES` where it has none.
    pub fn lane(&self) -> u64 {
        self.lane
    }

    // It got a lane.
    pub fn lodged(&mut self, lane: u64) {
        self.lane = lane;
    }

    // How many phases others' turns answered, and how many of these before it tried to take a turn.
    pub fn counts(&self) -> (u64, u64) {
        (self.answers, self.asks)
    }

    // Before a phase: who did not look tries to again, now and then.
    pub fn begin(&mut self, phase: u64) {
        if self.first < FEW && phase % PROBE == 0 {
            self.first = FIRST;
            self.serve = SERVE;
        }
    }

    // Whether it takes the turn before it posts.
    pub fn takes_first(&self) -> bool {
        self.has_served || self.first == 0
    }

    // Whether it lets others read their answers before.
    pub fn rests_first(&self) -> bool {
        self.serves_others
    }

    // How often it looks for posts under the turn.
    pub fn serve(&self) -> u32 {
        self.serve
    }

    // How often it looks for its answer after a post.
    pub fn first(&self) -> u32 {
        self.first
    }

    // Whether it hardly looks.
    pub fn is_slow(&self) -> bool {
        self.first < FEW
    }

    // It had the turn when its phase was complete.
    pub fn served(&mut self) {
        self.serve = doubled(self.serve, SERVE);
        self.has_served = true;
        self.serves_others = self.first != 0;
    }

    // Its answer came soon, or after all.
    pub fn quick(&mut self) {
        self.serve = doubled(self.serve, SERVE);
        self.first = doubled(self.first, FIRST);
        self.answered();
    }

    pub fn answered(&mut self) {
        self.has_served = false;
        self.serves_others = false;
    }

    // Another's turn told it the answer, before it tried to take one or behind that.
    pub fn told(&mut self, is_first: bool) {
        self.answers = self.answers.wrapping_add(1);
        if is_first {
            self.asks = self.asks.wrapping_add(1);
        }
    }

    // Its answer did not come soon.
    pub fn slow(&mut self) {
        self.serve = 0;
        self.first = 0;
    }
}
