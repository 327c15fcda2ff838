// A leg of a run: pallets on the departure of a lane in a period.
#[derive(Clone, Copy, Debug, PartialEq, Eq)]
pub struct Leg {
    pub lane: u8,
    pub period: u8,
    pub pallets: u32,
}
