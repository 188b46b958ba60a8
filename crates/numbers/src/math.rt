// Vectors, as in the Rust's `math.rs`.

// A position: three coordinates in metres, passed together by value (document 01, section 3).
#[derive(Clone, Copy, Default)]
pub struct Vec3 {
    pub x: f32,
    pub y: f32,
    pub z: f32,
}

// Two coordinates in metres.
#[derive(Clone, Copy, Default)]
pub struct Vec2 {
    pub x: f32,
    pub y: f32,
}
