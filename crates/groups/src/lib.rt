#![tactic(auto)]
// Three alike: one for each axis of a group, one for each group of a sensor.
ghost use Rattle.std.specs.Prelude.{◌≡◌, ◌&&◌, List, [], ◌∷◌};

// One for each axis of a group.
#[derive(Clone, Copy, Debug, PartialEq, Eq)]
pub struct PerAxis<T> {
    pub x: T,
    pub y: T,
    pub z: T,
}

// One for each group of a sensor.
#[derive(Clone, Copy, Debug, PartialEq, Eq)]
pub struct PerGroup<T> {
    pub gyro: T,
    pub accelerometer: T,
    pub inclinometer: T,
}

impl PerAxis<bool> {
    // Whether all three are true.
    pub fn all(self) -> bool
        ensures { result ≡ (self.x && self.y && self.z) }
    {
        self.x & self.y & self.z
    }
}

impl<T: Copy> PerAxis<T> {
    // Those of an array: X, Y, Z.
    pub fn of(three: [T; 3]) -> PerAxis<T>
        ensures { three ≡ result.x ∷ result.y ∷ result.z ∷ [] }
    {
        PerAxis {
            x: three[0],
            y: three[1],
            z: three[2],
        }
    }

    // The same for each axis.
    pub fn each(value: T) -> PerAxis<T>
        ensures { result ≡ record { x = value; y = value; z = value } }
    {
        PerAxis {
            x: value,
            y: value,
            z: value,
        }
    }

    // What f makes of each axis's.
    pub fn map<U, F: Fn(T) -> U>(self, f: F) -> PerAxis<U>
        requires x { F.pre f self.x }
        requires y { F.pre f self.y }
        requires z { F.pre f self.z }
        ensures x { F.post f self.x result.x }
        ensures y { F.post f self.y result.y }
        ensures z { F.post f self.z result.z }
    {
        PerAxis {
            x: f(self.x),
            y: f(self.y),
            z: f(self.z),
        }
    }

    // Each axis's beside the other's of that axis.
    pub fn zip<V: Copy>(self, other: PerAxis<V>) -> PerAxis<(T, V)>
        ensures { result ≡ record { x = (self.x, other.x); y = (self.y, other.y); z = (self.z, other.z) } }
    {
        PerAxis {
            x: (self.x, other.x),
            y: (self.y, other.y),
            z: (self.z, other.z),
        }
    }

    // What f makes of each axis's and the other's of that axis.
    pub fn map_with<V: Copy, U, F: Fn(T, V) -> U>(self, other: PerAxis<V>, f: F) -> PerAxis<U>
        requires x { F.pre f self.x other.x }
        requires y { F.pre f self.y other.y }
        requires z { F.pre f self.z other.z }
        ensures x { F.post f self.x other.x result.x }
        ensures y { F.post f self.y other.y result.y }
        ensures z { F.post f self.z other.z result.z }
    {
        PerAxis {
            x: f(self.x, other.x),
            y: f(self.y, other.y),
            z: f(self.z, other.z),
        }
    }
}

impl PerGroup<bool> {
    // Whether all three are true.
    pub fn all(self) -> bool
        ensures { result ≡ (self.gyro && self.accelerometer && self.inclinometer) }
    {
        self.gyro & self.accelerometer & self.inclinometer
    }
}

impl<T: Copy> PerGroup<T> {
    // Those of an array: gyro, accelerometer, inclinometer.
    pub fn of(three: [T; 3]) -> PerGroup<T>
        ensures { three ≡ result.gyro ∷ result.accelerometer ∷ result.inclinometer ∷ [] }
    {
        PerGroup {
            gyro: three[0],
            accelerometer: three[1],
            inclinometer: three[2],
        }
    }

    // The same for each group.
    pub fn each(value: T) -> PerGroup<T>
        ensures { result ≡ record { gyro = value; accelerometer = value; inclinometer = value } }
    {
        PerGroup {
            gyro: value,
            accelerometer: value,
            inclinometer: value,
        }
    }

    // What f makes of each group's.
    pub fn map<U, F: Fn(T) -> U>(self, f: F) -> PerGroup<U>
        requires gyro { F.pre f self.gyro }
        requires accelerometer { F.pre f self.accelerometer }
        requires inclinometer { F.pre f self.inclinometer }
        ensures gyro { F.post f self.gyro result.gyro }
        ensures accelerometer { F.post f self.accelerometer result.accelerometer }
        ensures inclinometer { F.post f self.inclinometer result.inclinometer }
    {
        PerGroup {
            gyro: f(self.gyro),
            accelerometer: f(self.accelerometer),
            inclinometer: f(self.inclinometer),
        }
    }

    // Each group's beside the other's of that group.
    pub fn zip<V: Copy>(self, other: PerGroup<V>) -> PerGroup<(T, V)>
        ensures { result ≡ record { gyro = (self.gyro, other.gyro); accelerometer = (self.accelerometer, other.accelerometer); inclinometer = (self.inclinometer, other.inclinometer) } }
    {
        PerGroup {
            gyro: (self.gyro, other.gyro),
            accelerometer: (self.accelerometer, other.accelerometer),
            inclinometer: (self.inclinometer, other.inclinometer),
        }
    }

    // What f makes of each group's and the other's of that group.
    pub fn map_with<V: Copy, U, F: Fn(T, V) -> U>(self, other: PerGroup<V>, f: F) -> PerGroup<U>
        requires gyro { F.pre f self.gyro other.gyro }
        requires accelerometer { F.pre f self.accelerometer other.accelerometer }
        requires inclinometer { F.pre f self.inclinometer other.inclinometer }
        ensures gyro { F.post f self.gyro other.gyro result.gyro }
        ensures accelerometer { F.post f self.accelerometer other.accelerometer result.accelerometer }
        ensures inclinometer { F.post f self.inclinometer other.inclinometer result.inclinometer }
    {
        PerGroup {
            gyro: f(self.gyro, other.gyro),
            accelerometer: f(self.accelerometer, other.accelerometer),
            inclinometer: f(self.inclinometer, other.inclinometer),
        }
    }
}
