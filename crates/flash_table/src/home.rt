ghost use Rattle.std.specs.Prelude.{◌≡◌, ◌+◌, ◌<◌, ◌^◌};
ghost use Rattle.flash_table.specs.Home.{home, power as the_power, tag};

// The home of a hash among the homes.
pub fn home_of(hash: u64, homes: u64, power: u64) -> u64
    requires some { 0 < homes }
    requires few { homes < 2 ^ 32 }
    requires power { power ≡ the_power homes }
    ensures same { result ≡ home homes hash }
    ensures inside { result < homes }
{
    let quotient = hash / 256;
    let wide = quotient & (2 * power - 1);
    if wide < homes {
        wide
    } else {
        quotient & (power - 1)
    }
}

// The tag of a hash.
pub fn tag_of(hash: u64) -> u8
    ensures { result ≡ tag hash }
{
    1 + (hash % 255) as u8
}

// The power among one home more.
pub fn power_after(homes: u64, power: u64) -> u64
    requires some { 0 < homes }
    requires few { homes < 2 ^ 32 }
    requires power { power ≡ the_power homes }
    ensures { result ≡ the_power (homes + 1) }
{
    if homes + 1 == 2 * power {
        homes + 1
    } else {
        power
    }
}
