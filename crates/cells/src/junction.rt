// A junction as calls take and return it.
use numbers::math::Vec2;

// Its heightmap is width * height of the lent values, from heightmap_ptr on.
#[derive(Clone, Copy, Default)]
pub struct PathJunction {
    pub position: Vec2,
    pub min_z: f32,
    pub max_z: f32,
    pub width: u8,
    pub height: u8,
    pub heightmap_ptr: u32,
}
