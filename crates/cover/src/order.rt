// The order of the labels.
ghost use Rattle.std.specs.Prelude.{◌≡◌, length, take};
ghost use Rattle.cover.specs.Order.{labels_below};

// Fewer ones first, then the smaller number.
pub const ORDER: [u32; 256] = [
    0, 1, 2, 4, 8, 16, 32, 64, 128, 3, 5, 6, 9, 10, 12, 17, 18, 20, 24, 33, 34, 36, 40, 48, 65, 66,
    68, 72, 80, 96, 129, 130, 132, 136, 144, 160, 192, 7, 11, 13, 14, 19, 21, 22, 25, 26, 28, 35,
    37, 38, 41, 42, 44, 49, 50, 52, 56, 67, 69, 70, 73, 74, 76, 81, 82, 84, 88, 97, 98, 100, 104,
    112, 131, 133, 134, 137, 138, 140, 145, 146, 148, 152, 161, 162, 164, 168, 176, 193, 194, 196,
    200, 208, 224, 15, 23, 27, 29, 30, 39, 43, 45, 46, 51, 53, 54, 57, 58, 60, 71, 75, 77, 78, 83,
    85, 86, 89, 90, 92, 99, 101, 102, 105, 106, 108, 113, 114, 116, 120, 135, 139, 141, 142, 147,
    149, 150, 153, 154, 156, 163, 165, 166, 169, 170, 172, 177, 178, 180, 184, 195, 197, 198, 201,
    202, 204, 209, 210, 212, 216, 225, 226, 228, 232, 240, 31, 47, 55, 59, 61, 62, 79, 87, 91, 93,
    94, 103, 107, 109, 110, 115, 117, 118, 121, 122, 124, 143, 151, 155, 157, 158, 167, 171, 173,
    174, 179, 181, 182, 185, 186, 188, 199, 203, 205, 206, 211, 213, 214, 217, 218, 220, 227, 229,
    230, 233, 234, 236, 241, 242, 244, 248, 63, 95, 111, 119, 123, 125, 126, 159, 175, 183, 187,
    189, 190, 207, 215, 219, 221, 222, 231, 235, 237, 238, 243, 245, 246, 249, 250, 252, 127, 191,
    223, 239, 247, 251, 253, 254, 255,
];

// The labels below n, in the order, at the front of the result: there is no heap for a list of so many.
#[tactic(auto, unfolding(integer::specs::ListTests::keep))]
pub fn labels_below(n: usize) -> [u32; 256]
    ensures { take (length (labels_below n)) result ≡ labels_below n }
{
    let mut labels = [0u32; 256];
    // How many are listed. `filter` and `enumerate` in its place read no plainer, and leave goals about what two iterators yielded.
    let mut count: usize = 0;
    for label in ORDER {
        if (label as usize) < n {
            labels[count] = label;
            count += 1;
        }
    }
    labels
}
