// What a running state tells.

// A bank: open unless `opened` is 0; the cycles of its last ACT and of the last RD and WR since.
#[derive(Clone, Copy)]
pub struct Bank {
    pub opened: u32,
    pub act: Option<u64>,
    pub rd: Option<u64>,
    pub wr: Option<u64>,
}

// A group of banks: the cycles of its latest ACT, RD and WR.
#[derive(Clone, Copy)]
pub struct Group {
    pub act: Option<u64>,
    pub rd: Option<u64>,
    pub wr: Option<u64>,
}

// `cycle` is the next to be tried; `acts` and `datas` have left the two queues; `a1` to `a4` are the cycles of the last four ACTs, newest
// first; `refresh` that of the last REF. `lent` is how many transactions of the list were lent before.
#[derive(Clone, Copy)]
pub struct State {
    pub edition: u32,
    pub cycle: u64,
    pub acts: u32,
    pub datas: u32,
    pub banks: [Bank; 16],
    pub a1: Option<u64>,
    pub a2: Option<u64>,
    pub a3: Option<u64>,
    pub a4: Option<u64>,
    pub groups: [Group; 8],
    pub refresh: Option<u64>,
    pub lent: u32,
}
