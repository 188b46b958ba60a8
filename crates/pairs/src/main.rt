// Prints the pairs of document 01 that concern numbers, one a line, worked out by the proved functions.
#![tactic(auto)]

use numbers::grid::{cell_for_position, cell_of_area};
use numbers::length::length_between;
use numbers::math::Vec3;
use numbers::names::{area_id_from_file_name, cell_file_name};
use numbers::steps::{steps_xy, steps_z};
use std::io;
use std::io::Write;

// The f32 that is no number is 0 / 0.
fn step_pairs(rt: &impl Print) -> io::Result<()> {
    println!(rt; "steps of x -0.3: {}", steps_xy(-0.3))?;
    println!(rt; "steps of x 8191.75: {}", steps_xy(8191.75))?;
    println!(rt; "steps of x 8192: {}", steps_xy(8192.0))?;
    println!(rt; "steps of x NaN: {}", steps_xy(0.0 / 0.0))?;
    println!(rt; "steps of z -1024: {}", steps_z(-1024.0))
}

fn grid_pairs(rt: &impl Print) -> io::Result<()> {
    let up = cell_for_position(-0.0001220703125, 0.0);
    println!(rt; "grid of x -1/8192: {}", up.x)?;
    let below = cell_for_position(-0.00048828125, 0.0);
    println!(rt; "grid of x -1/2048: {}", below.x)?;
    let island = cell_of_area(1177);
    println!(rt; "x of area 1177: {}", island.x)?;
    println!(rt; "y of area 1177: {}", island.y)
}

// The second pair's s is 32761 - 3/512, the rounded square of 181 - 1/65536, and 2/512 from y.
fn length_pairs(rt: &impl Print) -> io::Result<()> {
    let a = Vec3 {
        x: 0.0,
        y: 0.0,
        z: 0.0,
    };
    let b = Vec3 {
        x: 3.0,
        y: 4.0,
        z: 0.0,
    };
    println!(rt; "length for s 25: {}", length_between(a, b))?;
    let c = Vec3 {
        x: 180.9999847412109375,
        y: 0.0625,
        z: 0.0,
    };
    println!(rt; "length for s 32761 - 1/512: {}", length_between(a, c))
}

fn print_area(rt: &impl Print, name: &str) -> io::Result<()> {
    match area_id_from_file_name(name.as_bytes()) {
        Some(n) => println!(rt; "area of {name}: {n}"),
        None => println!(rt; "area of {name}: none"),
    }
}

fn print_name(rt: &impl Print) -> io::Result<()> {
    print!(rt; "file of cell 25 4: ")?;
    if let Ok(name) = cell_file_name(25, 4) {
        io::writer(rt).write_all(name.bytes.get(..name.count).unwrap_or(&[]))?;
    }
    println!(rt)
}

fn name_pairs(rt: &impl Print) -> io::Result<()> {
    print_name(rt)?;
    print_area(rt, "nodes489.ynd")?;
    print_area(rt, "nodes+007.ynd")?;
    print_area(rt, "nodes4294967296.ynd")
}

fn main(rt: HostRuntime) -> io::Result<()> {
    println!(rt; "pairs of document 01, numbers")?;
    step_pairs(&rt)?;
    grid_pairs(&rt)?;
    length_pairs(&rt)?;
    name_pairs(&rt)
}
