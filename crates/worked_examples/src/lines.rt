// The lines of the table. What is written no contract can say; each answers the number that it wrote.
ghost use Rattle.std.specs.Prelude.{◌≡◌};
ghost use Rattle.ieee754.specs.Ieee754.{canonical_bits};

use ieee754::canonical_bits;

pub fn bits_line(label: &[u8], x: f64) -> u64
    ensures { result ≡ canonical_bits x }
{
    let bits = canonical_bits(x);
    io::write_all(1, label);
    io::write_all(1, b"  ");
    io::print_hex(1, bits, 16);
    io::write_all(1, b"\n");
    bits
}

pub fn number_line(label: &[u8], n: u64) -> u64
    ensures { result ≡ n }
{
    io::write_all(1, label);
    io::write_all(1, b"  ");
    io::print_decimal(1, n);
    io::write_all(1, b"\n");
    n
}
