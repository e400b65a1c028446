// What `start` answers.
use controller::controller::Controller;
use records::refusal::Refusal;

// A refused start hands out a controller of edition 0, which no table has: number 9 refuses every run of it.
#[derive(Clone, Copy)]
pub struct StartTold {
    pub controller: Controller,
    pub answer: Result<u16, Refusal>,
}
