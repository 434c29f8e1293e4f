// The part of a CMAC that a frame carries.
ghost use Rattle.std.specs.Prelude.{◌≡◌, take};

pub fn first_four(mac: [u8; 16]) -> [u8; 4]
    ensures { result ≡ take 4 mac }
{
    [mac[0], mac[1], mac[2], mac[3]]
}
