#![tactic(auto)]
// What a text line shows: no code (01, The text line).

// Which groups a line shows, and of which groups the totals: gyro, accelerometer, inclinometer. Totals of a group that isn't carried aren't shown.
#[derive(Clone, Copy)]
pub struct Shown {
    pub carried: [bool; 3],
    pub kept: [bool; 3],
}
