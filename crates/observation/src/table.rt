// Document 01's table of figures: how wide each is written, and the least and the greatest it may be.
use crate::Row;

// Minutes.
pub const LATITUDE: Row = Row {
    width: 3,
    least: -5400,
    most: 5400,
};

// Minutes.
pub const LONGITUDE: Row = Row {
    width: 3,
    least: -10800,
    most: 10800,
};

// Seconds into the month.
pub const SECONDS: Row = Row {
    width: 5,
    least: 0,
    most: 2678399,
};

// What a later observation gives in their place: changes, and the time since the previous.
pub const CHANGE: Row = Row {
    width: 2,
    least: -800,
    most: 799,
};

pub const SINCE: Row = Row {
    width: 3,
    least: 0,
    most: 31999,
};

// Tens of feet.
pub const ALTITUDE: Row = Row {
    width: 3,
    least: -100,
    most: 6000,
};

// Tenths of a degree.
pub const TEMPERATURE: Row = Row {
    width: 2,
    least: -800,
    most: 799,
};

pub const DIRECTION: Row = Row {
    width: 2,
    least: 0,
    most: 360,
};

// Wind speed, and gust.
pub const SPEED: Row = Row {
    width: 2,
    least: 0,
    most: 799,
};

pub const VAPOUR: Row = Row {
    width: 3,
    least: 0,
    most: 31999,
};
