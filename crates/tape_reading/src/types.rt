// A reading as it arrives: whole centimetres, or metres or kilometres in single precision.
#[derive(Clone, Copy, Debug, PartialEq)]
pub enum Reading {
    Centimetres(i32),
    Metres(f32),
    Kilometres(f32),
}
