// What the search for a wire works on.

// The marks, the queue of spots with the places and slots from which each was reached, and the lists, all lent to it.
#[derive(Drop)]
pub struct Work<'a> {
    pub marks: &'a mut [u8],
    pub queue: &'a mut [u16],
    pub parent: &'a mut [u16],
    pub slot: &'a mut [u8],
    pub lists: &'a mut [u16],
}
