// The table: sixteen 16-bit numbers in 32 bytes, or twenty in 40. It is read and written in `tables`.

#[derive(Clone, Copy, Debug, PartialEq, Eq)]
pub struct Table {
    pub edition: u16,
    pub banks: u16,
    pub b: u16,
    pub ccd: u16,
    pub rcd: u16,
    pub rp: u16,
    pub ras: u16,
    pub rc: u16,
    pub rrd: u16,
    pub faw: u16,
    pub rl: u16,
    pub wl: u16,
    pub rtp: u16,
    pub wr: u16,
    pub wtr: u16,
    // 0: the table has no refresh.
    pub rfc: u16,
    // A bank's group is its number modulo the number of groups; within a group the long CCD, RRD and WTR.
    pub groups: u16,
    pub ccdl: u16,
    pub rrdl: u16,
    pub wtrl: u16,
}
