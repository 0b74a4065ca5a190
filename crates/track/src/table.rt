// The limits of the three figures: those of a first observation.
use crate::{Beyond, Limits};

// Minutes.
pub const LATITUDE: Limits = Limits {
    least: -5400,
    most: 5400,
    beyond: Beyond::Lost,
};

// Minutes.
pub const LONGITUDE: Limits = Limits {
    least: -10800,
    most: 10800,
    beyond: Beyond::Turned,
};

// Seconds into the month.
pub const SECONDS: Limits = Limits {
    least: 0,
    most: 2678399,
    beyond: Beyond::RunsOn,
};
