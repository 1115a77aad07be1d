//! What an arena holds.

use path_arena::Arena;

/// Whether an arena has these strings and no others, in this order.
pub fn holds(arena: &Arena, strings: &[&[u8]]) -> bool {
    for (place, string) in strings.iter().enumerate() {
        match arena.find(string) {
            Some(id) if id.place() as usize == place && arena.get(id) == *string => {}
            _ => return false,
        }
    }
    arena.len() == strings.len()
}
