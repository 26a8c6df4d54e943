// The constant tables of document 01.
use crate::Profile;

// A listed radius and its least clothoid length, in metres.
#[derive(Clone, Copy)]
pub(crate) struct Clothoid {
    pub radius: u32,
    pub length: u32,
}

// The added slopes of III, IV and V, in per mille.
const LEVEL: u32 = 10;

const MOUNTAIN: u32 = 20;

// The least shoulders of II and III, and of IV and V, in mm.
const LEAST_WIDE: u32 = 1500;

const LEAST_NARROW: u32 = 1000;

pub(crate) const PROFILES: [Profile; 5] = [
    Profile {
        half_width: 3750,
        shoulder_width: 3750,
        crown_slope: 20,
        shoulder_slope: 40,
        least_shoulder: LEAST_WIDE,
        least_radius: 125,
        added_level: 5,
        added_mountain: 5,
    },
    Profile {
        half_width: 3500,
        shoulder_width: 2500,
        crown_slope: 20,
        shoulder_slope: 40,
        least_shoulder: LEAST_WIDE,
        least_radius: 100,
        added_level: LEVEL,
        added_mountain: MOUNTAIN,
    },
    Profile {
        half_width: 3000,
        shoulder_width: 2000,
        crown_slope: 20,
        shoulder_slope: 50,
        least_shoulder: LEAST_NARROW,
        least_radius: 60,
        added_level: LEVEL,
        added_mountain: MOUNTAIN,
    },
    Profile {
        half_width: 3000,
        shoulder_width: 2000,
        crown_slope: 30,
        shoulder_slope: 60,
        least_shoulder: LEAST_NARROW,
        least_radius: 30,
        added_level: LEVEL,
        added_mountain: MOUNTAIN,
    },
    Profile {
        half_width: 2250,
        shoulder_width: 1750,
        crown_slope: 30,
        shoulder_slope: 60,
        least_shoulder: LEAST_NARROW,
        least_radius: 30,
        added_level: LEVEL,
        added_mountain: MOUNTAIN,
    },
];

pub(crate) const CLOTHOIDS: [Clothoid; 20] = [
    Clothoid {
        radius: 30,
        length: 30,
    },
    Clothoid {
        radius: 40,
        length: 30,
    },
    Clothoid {
        radius: 50,
        length: 35,
    },
    Clothoid {
        radius: 60,
        length: 40,
    },
    Clothoid {
        radius: 70,
        length: 40,
    },
    Clothoid {
        radius: 80,
        length: 45,
    },
    Clothoid {
        radius: 90,
        length: 45,
    },
    Clothoid {
        radius: 100,
        length: 50,
    },
    Clothoid {
        radius: 125,
        length: 55,
    },
    Clothoid {
        radius: 150,
        length: 60,
    },
    Clothoid {
        radius: 200,
        length: 70,
    },
    Clothoid {
        radius: 250,
        length: 80,
    },
    Clothoid {
        radius: 300,
        length: 90,
    },
    Clothoid {
        radius: 400,
        length: 100,
    },
    Clothoid {
        radius: 500,
        length: 110,
    },
    Clothoid {
        radius: 600,
        length: 120,
    },
    Clothoid {
        radius: 700,
        length: 120,
    },
    Clothoid {
        radius: 800,
        length: 120,
    },
    Clothoid {
        radius: 1000,
        length: 120,
    },
    Clothoid {
        radius: 2000,
        length: 100,
    },
];
