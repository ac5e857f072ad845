// What a run of check is lent: a layout's three tables, and the working room.

// The material to read; the errors, what waits and the working room to change.
#[derive(Drop)]
pub struct Lent<'a> {
    pub material: &'a [u16],
    pub errors: &'a mut [u16],
    pub waiting: &'a mut [u16],
    pub work: &'a mut [u16],
}
