#![tactic(auto)]
// What a datagram is written from: no code (02, 2.1).

// What a datagram is to carry beside its readings; 0 for what its identifier doesn't carry. The numbers are wider than the fields, so that each reaches
// its check unnarrowed.
#[derive(Clone, Copy)]
pub struct Values {
    // gyro, accelerometer, inclinometer
    pub statuses: [i32; 3],
    // X, Y, Z
    pub gyro_temperatures: [i32; 3],
    pub accelerometer_temperatures: [i32; 3],
    pub inclinometer_temperatures: [i32; 3],
    pub temperature_statuses: [i32; 3],
    pub aux: i32,
    pub aux_status: i32,
    pub counter: i32,
    pub latency: i32,
}
