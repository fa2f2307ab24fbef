// The front of a room of fixed length.
ghost use Rattle.std.specs.Prelude.{◌≡◌, ◌≤◌, length, take, replicate};
ghost use Rattle.output.specs.Put;

#[derive(Clone, Copy)]
pub struct Buffer<const N: usize> {
    room: [u8; N],
    held: usize,
    ghost within: { held ≤ N },
}

impl<const N: usize> Buffer<N> {
    pub fn new() -> Buffer<N>
        ensures held { result.held ≡ 0 }
        ensures room { result.room ≡ replicate N 0 }
    {
        Buffer {
            room: [0; N],
            held: 0,
        }
    }

    pub fn bytes(&self) -> &[u8]
        ensures few { length result.now ≤ N }
        ensures front { result.now ≡ take self.now.held self.now.room }
    {
        &self.room[..self.held]
    }

    pub fn bytes_mut(&mut self) -> &mut [u8] {
        let held = self.held;
        let room = &mut self.room;
        let all = &mut room[..];
        &mut all[..held]
    }

    // Holds so many bytes, all of them that one.
    pub fn hold(&mut self, n: usize, byte: u8)
        requires { n ≤ N }
        ensures held { self.new.held ≡ n }
        ensures room { self.new.room ≡ Put.put self.old.room 0 (replicate n byte) }
    {
        self.room[..n].fill(byte);
        self.held = n;
    }

    // Holds a copy of those bytes.
    pub fn hold_copy(&mut self, bytes: &[u8])
        requires { length bytes.now ≤ N }
        ensures held { self.new.held ≡ length bytes.now }
        ensures room { self.new.room ≡ Put.put self.old.room 0 bytes.now }
    {
        self.room[..bytes.len()].copy_from_slice(bytes);
        self.held = bytes.len();
    }
}
