//! The dumps of worked traces, as a program of its own writes them, which shares nothing with this repository.

// The dump of an erase of one block, polled before and after its ready, on one LUN.
pub(crate) const ERASE_DUMP: &str = "$version onfiseq $end\n\
$timescale 1 ns $end\n\
$scope module channel $end\n\
$var wire 1 ! CE0_n $end\n\
$var wire 1 \" CLE $end\n\
$var wire 1 # ALE $end\n\
$var wire 1 $ WE_n $end\n\
$var wire 1 % RE_n $end\n\
$var wire 1 & DQ[7] $end\n\
$var wire 1 ' DQ[6] $end\n\
$var wire 1 ( DQ[5] $end\n\
$var wire 1 ) DQ[4] $end\n\
$var wire 1 * DQ[3] $end\n\
$var wire 1 + DQ[2] $end\n\
$var wire 1 , DQ[1] $end\n\
$var wire 1 - DQ[0] $end\n\
$var wire 1 . RB0_n $end\n\
$var wire 1 / busy0_0 $end\n\
$var wire 1 0 array0_0 $end\n\
$var wire 1 1 fail0_0 $end\n\
$var wire 1 2 rule[4] $end\n\
$var wire 1 3 rule[3] $end\n\
$var wire 1 4 rule[2] $end\n\
$var wire 1 5 rule[1] $end\n\
$var wire 1 6 rule[0] $end\n\
$upscope $end\n\
$enddefinitions $end\n\
#0\n\
$dumpvars\n\
1!\n\
0\"\n\
0#\n\
1$\n\
1%\n\
z&\n\
z'\n\
z(\n\
z)\n\
z*\n\
z+\n\
z,\n\
z-\n\
1.\n\
0/\n\
00\n\
01\n\
02\n\
03\n\
04\n\
05\n\
06\n\
$end\n\
#0\n\
0!\n\
1\"\n\
0&\n\
1'\n\
1(\n\
0)\n\
0*\n\
0+\n\
0,\n\
0-\n\
#2\n\
0$\n\
#6\n\
1$\n\
#10\n\
0\"\n\
1#\n\
0'\n\
0(\n\
1+\n\
#12\n\
0$\n\
#16\n\
1$\n\
#20\n\
0+\n\
#22\n\
0$\n\
#26\n\
1$\n\
#32\n\
0$\n\
#36\n\
1$\n\
#40\n\
1\"\n\
0#\n\
1&\n\
1'\n\
1)\n\
#42\n\
0$\n\
#46\n\
1$\n\
0.\n\
1/\n\
#50\n\
0&\n\
1(\n\
#52\n\
0$\n\
#56\n\
1$\n\
#60\n\
0\"\n\
#62\n\
0%\n\
1&\n\
0'\n\
0(\n\
0)\n\
#66\n\
1%\n\
#76\n\
1.\n\
0/\n\
#80\n\
1\"\n\
0&\n\
1'\n\
1(\n\
1)\n\
#82\n\
0$\n\
#86\n\
1$\n\
#90\n\
0\"\n\
#92\n\
0%\n\
1&\n\
0)\n\
#96\n\
1%\n\
#100\n\
1!\n";

// The dump of no item, on a channel of no target.
pub(crate) const EMPTY_DUMP: &str = "$version onfiseq $end\n\
$timescale 1 ns $end\n\
$scope module channel $end\n\
$var wire 1 ! CLE $end\n\
$var wire 1 \" ALE $end\n\
$var wire 1 # WE_n $end\n\
$var wire 1 $ RE_n $end\n\
$var wire 1 % DQ[7] $end\n\
$var wire 1 & DQ[6] $end\n\
$var wire 1 ' DQ[5] $end\n\
$var wire 1 ( DQ[4] $end\n\
$var wire 1 ) DQ[3] $end\n\
$var wire 1 * DQ[2] $end\n\
$var wire 1 + DQ[1] $end\n\
$var wire 1 , DQ[0] $end\n\
$var wire 1 - rule[4] $end\n\
$var wire 1 . rule[3] $end\n\
$var wire 1 / rule[2] $end\n\
$var wire 1 0 rule[1] $end\n\
$var wire 1 1 rule[0] $end\n\
$upscope $end\n\
$enddefinitions $end\n\
#0\n\
$dumpvars\n\
0!\n\
0\"\n\
1#\n\
1$\n\
z%\n\
z&\n\
z'\n\
z(\n\
z)\n\
z*\n\
z+\n\
z,\n\
0-\n\
0.\n\
0/\n\
00\n\
01\n\
$end\n\
#0\n";

// The dump of a failed erase on LUN 1 of target 1, of two of two LUNs, and of a status of target 0 after it.
pub(crate) const FAILED_DUMP: &str = "$version onfiseq $end\n\
$timescale 1 ns $end\n\
$scope module channel $end\n\
$var wire 1 ! CE0_n $end\n\
$var wire 1 \" CE1_n $end\n\
$var wire 1 # CLE $end\n\
$var wire 1 $ ALE $end\n\
$var wire 1 % WE_n $end\n\
$var wire 1 & RE_n $end\n\
$var wire 1 ' DQ[7] $end\n\
$var wire 1 ( DQ[6] $end\n\
$var wire 1 ) DQ[5] $end\n\
$var wire 1 * DQ[4] $end\n\
$var wire 1 + DQ[3] $end\n\
$var wire 1 , DQ[2] $end\n\
$var wire 1 - DQ[1] $end\n\
$var wire 1 . DQ[0] $end\n\
$var wire 1 / RB0_n $end\n\
$var wire 1 0 RB1_n $end\n\
$var wire 1 1 busy0_0 $end\n\
$var wire 1 2 array0_0 $end\n\
$var wire 1 3 fail0_0 $end\n\
$var wire 1 4 busy0_1 $end\n\
$var wire 1 5 array0_1 $end\n\
$var wire 1 6 fail0_1 $end\n\
$var wire 1 7 busy1_0 $end\n\
$var wire 1 8 array1_0 $end\n\
$var wire 1 9 fail1_0 $end\n\
$var wire 1 : busy1_1 $end\n\
$var wire 1 ; array1_1 $end\n\
$var wire 1 < fail1_1 $end\n\
$var wire 1 = rule[4] $end\n\
$var wire 1 > rule[3] $end\n\
$var wire 1 ? rule[2] $end\n\
$var wire 1 @ rule[1] $end\n\
$var wire 1 A rule[0] $end\n\
$upscope $end\n\
$enddefinitions $end\n\
#0\n\
$dumpvars\n\
1!\n\
1\"\n\
0#\n\
0$\n\
1%\n\
1&\n\
z'\n\
z(\n\
z)\n\
z*\n\
z+\n\
z,\n\
z-\n\
z.\n\
1/\n\
10\n\
01\n\
02\n\
03\n\
04\n\
05\n\
06\n\
07\n\
08\n\
09\n\
0:\n\
0;\n\
0<\n\
0=\n\
0>\n\
0?\n\
0@\n\
0A\n\
$end\n\
#0\n\
0\"\n\
1#\n\
0'\n\
1(\n\
1)\n\
0*\n\
0+\n\
0,\n\
0-\n\
0.\n\
#2\n\
0%\n\
#6\n\
1%\n\
#10\n\
0#\n\
1$\n\
0(\n\
#12\n\
0%\n\
#16\n\
1%\n\
#20\n\
0)\n\
#22\n\
0%\n\
#26\n\
1%\n\
#32\n\
0%\n\
#36\n\
1%\n\
#40\n\
1#\n\
0$\n\
1'\n\
1(\n\
1*\n\
#42\n\
0%\n\
#46\n\
1%\n\
00\n\
1:\n\
#56\n\
10\n\
0:\n\
1<\n\
#60\n\
0!\n\
1\"\n\
0'\n\
1)\n\
1+\n\
#62\n\
0%\n\
#66\n\
1%\n\
0<\n\
#70\n\
0#\n\
1$\n\
0(\n\
0)\n\
0*\n\
0+\n\
#72\n\
0%\n\
#76\n\
1%\n\
#82\n\
0%\n\
#86\n\
1%\n\
#92\n\
0%\n\
#96\n\
1%\n\
#100\n\
0$\n\
#102\n\
0&\n\
1'\n\
1(\n\
1)\n\
#106\n\
1&\n\
#110\n\
1!\n";

// The dump of a trace whose sixth item breaks rule F6, on two targets of two LUNs.
pub(crate) const BROKEN_DUMP: &str = "$version onfiseq $end\n\
$timescale 1 ns $end\n\
$scope module channel $end\n\
$var wire 1 ! CE0_n $end\n\
$var wire 1 \" CE1_n $end\n\
$var wire 1 # CLE $end\n\
$var wire 1 $ ALE $end\n\
$var wire 1 % WE_n $end\n\
$var wire 1 & RE_n $end\n\
$var wire 1 ' DQ[7] $end\n\
$var wire 1 ( DQ[6] $end\n\
$var wire 1 ) DQ[5] $end\n\
$var wire 1 * DQ[4] $end\n\
$var wire 1 + DQ[3] $end\n\
$var wire 1 , DQ[2] $end\n\
$var wire 1 - DQ[1] $end\n\
$var wire 1 . DQ[0] $end\n\
$var wire 1 / RB0_n $end\n\
$var wire 1 0 RB1_n $end\n\
$var wire 1 1 busy0_0 $end\n\
$var wire 1 2 array0_0 $end\n\
$var wire 1 3 fail0_0 $end\n\
$var wire 1 4 busy0_1 $end\n\
$var wire 1 5 array0_1 $end\n\
$var wire 1 6 fail0_1 $end\n\
$var wire 1 7 busy1_0 $end\n\
$var wire 1 8 array1_0 $end\n\
$var wire 1 9 fail1_0 $end\n\
$var wire 1 : busy1_1 $end\n\
$var wire 1 ; array1_1 $end\n\
$var wire 1 < fail1_1 $end\n\
$var wire 1 = rule[4] $end\n\
$var wire 1 > rule[3] $end\n\
$var wire 1 ? rule[2] $end\n\
$var wire 1 @ rule[1] $end\n\
$var wire 1 A rule[0] $end\n\
$upscope $end\n\
$enddefinitions $end\n\
#0\n\
$dumpvars\n\
1!\n\
1\"\n\
0#\n\
0$\n\
1%\n\
1&\n\
z'\n\
z(\n\
z)\n\
z*\n\
z+\n\
z,\n\
z-\n\
z.\n\
1/\n\
10\n\
01\n\
02\n\
03\n\
04\n\
05\n\
06\n\
07\n\
08\n\
09\n\
0:\n\
0;\n\
0<\n\
0=\n\
0>\n\
0?\n\
0@\n\
0A\n\
$end\n\
#0\n\
0!\n\
1#\n\
0'\n\
1(\n\
1)\n\
0*\n\
0+\n\
0,\n\
0-\n\
0.\n\
#2\n\
0%\n\
#6\n\
1%\n\
#10\n\
0#\n\
1$\n\
0(\n\
0)\n\
#12\n\
0%\n\
#16\n\
1%\n\
#22\n\
0%\n\
#26\n\
1%\n\
#32\n\
0%\n\
#36\n\
1%\n\
#40\n\
1#\n\
0$\n\
1'\n\
1(\n\
1*\n\
#42\n\
0%\n\
#46\n\
1%\n\
0/\n\
11\n\
#50\n\
0'\n\
0(\n\
#52\n\
0%\n\
#56\n\
1%\n\
x/\n\
x0\n\
x1\n\
x2\n\
x3\n\
x4\n\
x5\n\
x6\n\
x7\n\
x8\n\
x9\n\
x:\n\
x;\n\
x<\n\
1?\n\
1@\n\
#70\n\
1!\n\
0\"\n\
1(\n\
1)\n\
#72\n\
0%\n\
#76\n\
1%\n\
#80\n\
1\"\n";

// The dump of a cache read, whose array works on after its ready, on one LUN.
pub(crate) const CACHED_DUMP: &str = "$version onfiseq $end\n\
$timescale 1 ns $end\n\
$scope module channel $end\n\
$var wire 1 ! CE0_n $end\n\
$var wire 1 \" CLE $end\n\
$var wire 1 # ALE $end\n\
$var wire 1 $ WE_n $end\n\
$var wire 1 % RE_n $end\n\
$var wire 1 & DQ[7] $end\n\
$var wire 1 ' DQ[6] $end\n\
$var wire 1 ( DQ[5] $end\n\
$var wire 1 ) DQ[4] $end\n\
$var wire 1 * DQ[3] $end\n\
$var wire 1 + DQ[2] $end\n\
$var wire 1 , DQ[1] $end\n\
$var wire 1 - DQ[0] $end\n\
$var wire 1 . RB0_n $end\n\
$var wire 1 / busy0_0 $end\n\
$var wire 1 0 array0_0 $end\n\
$var wire 1 1 fail0_0 $end\n\
$var wire 1 2 rule[4] $end\n\
$var wire 1 3 rule[3] $end\n\
$var wire 1 4 rule[2] $end\n\
$var wire 1 5 rule[1] $end\n\
$var wire 1 6 rule[0] $end\n\
$upscope $end\n\
$enddefinitions $end\n\
#0\n\
$dumpvars\n\
1!\n\
0\"\n\
0#\n\
1$\n\
1%\n\
z&\n\
z'\n\
z(\n\
z)\n\
z*\n\
z+\n\
z,\n\
z-\n\
1.\n\
0/\n\
00\n\
01\n\
02\n\
03\n\
04\n\
05\n\
06\n\
$end\n\
#0\n\
0!\n\
1\"\n\
0&\n\
0'\n\
0(\n\
0)\n\
0*\n\
0+\n\
0,\n\
0-\n\
#2\n\
0$\n\
#6\n\
1$\n\
#10\n\
0\"\n\
1#\n\
#12\n\
0$\n\
#16\n\
1$\n\
#22\n\
0$\n\
#26\n\
1$\n\
#32\n\
0$\n\
#36\n\
1$\n\
#42\n\
0$\n\
#46\n\
1$\n\
#52\n\
0$\n\
#56\n\
1$\n\
#60\n\
1\"\n\
0#\n\
1(\n\
1)\n\
#62\n\
0$\n\
#66\n\
1$\n\
0.\n\
1/\n\
#76\n\
1.\n\
0/\n\
#80\n\
1-\n\
#82\n\
0$\n\
#86\n\
1$\n\
0.\n\
1/\n\
#96\n\
1.\n\
0/\n\
10\n\
#100\n\
0\"\n\
#102\n\
0%\n\
1&\n\
0)\n\
1+\n\
#106\n\
1%\n\
#112\n\
0%\n\
0&\n\
1'\n\
0(\n\
1)\n\
1*\n\
0+\n\
1,\n\
0-\n\
#116\n\
1%\n\
#126\n\
00\n\
#130\n\
1!\n";
